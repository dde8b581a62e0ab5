// The library for C, lists over a network: a list is audited and printed, with 0 or a refusal's number as result.
#![tactic(auto)]

mod audits;
mod pages;

pub use audits::thinning_audit;
pub use pages::thinning_print_page;
