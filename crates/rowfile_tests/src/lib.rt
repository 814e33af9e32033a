// Row files at the bounds of every rule, each text with the verdict that the format gives it.
#![tactic(auto)]

#[cfg(test)]
mod tests;
