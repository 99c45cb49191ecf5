//! The traces of many sites, read by windows: of each no more entries are held than those of the lines
//! that were read last. What is told of them is what their files hold.
#![tactic(auto)]

mod fault;
mod file;
mod window;
mod windows;

pub use fault::WindowFault;
pub use file::ReadAt;
pub use window::TraceWindow;
pub use windows::TraceWindows;
