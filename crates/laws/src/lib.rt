// Laws of the definitions: this crate has no code of its own.
#![tactic(auto)]

pub fn nothing(x: u32) -> u32 {
    x
}
