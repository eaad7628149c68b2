// The five exceptions that a hypervisor injects into a guest.
#![tactic(auto)]

mod answer;
mod injection;
mod injector;
mod report;

pub use answer::{InjectionRefusal, number};
pub use exception::{FaultRegisters, Guest, Saved};
pub use injection::{Access, Fetch, Injection, correction};
pub use injector::{Injected, inject};
