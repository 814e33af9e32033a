// Tests of the bench over capacity boxes: the counts at which it is full, and every refusal, in its order and with all memory as it was.
#![tactic(auto)]

#[cfg(test)]
mod orders;
#[cfg(test)]
mod sizes;
