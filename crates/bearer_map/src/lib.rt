//! The tables of a session, the local identities that a node attaches, and the routes that follow from both.
#![tactic(auto)]

mod ids;
mod laws;
mod names;
mod order;
mod routes;
mod routing;
mod rows;
mod search;
mod settings;
mod tables;

pub use ids::{Attachment, Ids};
pub use laws::one_answer;
pub use routes::{Route, RouteFault};
pub use routing::{down_route, gnb_route, remote_route, up_route};
pub use rows::{BearerRow, MapRow, Pc5Row, RemoteRow, TableFault, UuRow};
pub use settings::{SetName, Settings};
pub use tables::Tables;
