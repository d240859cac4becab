// Why calls are refused, and the number of each refusal.
#![tactic(auto)]

mod draft;
mod lookup;
mod making;
mod offer;
mod reading;
mod refusal;
mod session;
mod text;

pub use draft::DraftRefusal;
pub use lookup::LookupRefusal;
pub use making::MakeRefusal;
pub use offer::OfferRefusal;
pub use reading::ReadRefusal;
pub use refusal::{Refusal, numbered};
pub use session::SessionRefusal;
pub use text::TextRefusal;
