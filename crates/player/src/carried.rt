// Which lines are carried out.
ghost use Rattle.std.specs.Prelude.{◌≡◌};
ghost use Rattle.player.specs.Carried.{is_carried};

use script_text::Line;

/// Whether a line is of a form that is carried out: none that plans or applies a switch of paths, and no burst or drain.
pub(crate) fn is_carried(line: &Line) -> bool
    ensures { result ≡ is_carried line.now }
{
    !matches!(
        line,
        Line::Plan { .. } | Line::Apply { .. } | Line::Stage { .. } | Line::Burst | Line::Drain
    )
}
