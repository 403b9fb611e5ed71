//! What shelves and outputs do, and a command over them whose calls fail in turn, apart from
//! `dsr_store` and `dsr_script`, which their own tests would prove twice.
#![tactic(auto)]

#[cfg(test)]
mod calls;
#[cfg(test)]
mod copying;
#[cfg(test)]
mod memory;
#[cfg(test)]
mod reads;
#[cfg(test)]
mod statuses;
#[cfg(test)]
mod system;
