//! The devices that the product reads from and writes to, and forms of them in memory.
//!
//! A device is a trait. What it holds is optional in its meaning: a form in memory tells it, and
//! contracts that read it ask nothing where a device doesn't. Each device counts its faults, and
//! answers [`Failed`] only in a call that was counted. So a caller that met a fault can say whose it was. A [`Chooser`], who
//! decides the order of what may go in any, is no device: its calls can't fail.
#![tactic(auto)]

mod call_log;
mod calls;
mod chooser;
mod copies;
mod devices;
mod disk_files;
mod gains;
mod memory_disk;
mod memory_files;
mod memory_images;
mod memory_sink;
mod memory_source;
mod mount_book;
mod store_disk;
mod synced;

pub use chooser::{Chooser, ListChooser};
pub use devices::{Failed, Files, Sink, Source};
pub use gains::{WriteStop, write_line};
pub use memory_disk::MemDisk;
pub use memory_files::MemFiles;
pub use memory_sink::MemSink;
pub use memory_source::MemSource;
pub use mount_book::MountBook;
pub use store_disk::{Disk, MountFault, StoreFile};
pub use synced::put_synced;
