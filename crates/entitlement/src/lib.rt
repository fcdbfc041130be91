// Whether a transfer is open to the member: refusals 6 to 11 and 17, which look at dates and codes and at no amount.
#![tactic(auto)]

mod dates;
mod stages;

pub use stages::check_entitlement;
