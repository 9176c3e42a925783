// What holds of tables and routes alone.
ghost use Rattle.bearer_map.specs.Laws.{OneUpRoute, OneDownRoute, OneGnbRoute, OneRemoteRoute};

/// A law: over map rows in order and attachments that share neither a remote nor a local identity, each route has at
/// most one answer.
pub fn one_answer()
    ensures up { OneUpRoute }
    ensures down { OneDownRoute }
    ensures gnb { OneGnbRoute }
    ensures remote { OneRemoteRoute }
{}
