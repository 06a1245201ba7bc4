//! The GIC and the generic timers of an Arm machine.

pub mod gic;
pub mod records;
pub mod timer_faults;
pub mod timers;
