// Forests of small lists, planted place by place as a caller outside the crate `forest` plants them.
#![tactic(auto)]

#[cfg(test)]
mod tests;
