// The sections of a log's bytes, and access by entry.
//
// Each section is its count of entries, 32 bits little-endian, and then the entries: the editions seen (one byte each), the syndromes (8
// bytes), the addresses (FAR and HPFAR, 8 bytes each) and the injections (two bytes: its own, and its domain). Entries are carried and not
// judged.
#![tactic(auto)]

mod entry;
mod number;
mod section;

pub use entry::{Entry, Look, Place, entry_at, look_at, size_of, skip};
pub use section::{ADDRESS, EDITION, INJECTION, SYNDROME, Section, front};
