//! Certificates: listed rows with their shares, and the test that they are the rows, whoever wrote them.
#![tactic(auto)]

mod awaited;
mod certificate;
mod checking;
mod columns;
mod contents;
mod draft;
mod drafting;
mod fault;
mod heads;
mod law;
mod lines;
mod numbers;
mod reader;
mod stages;
mod terms;
mod words;
mod writing;

pub use certificate::{Certificate, Column};
pub use checking::check;
pub use fault::CertFault;
pub use law::written_law;
pub use reader::{Progress, Reader};
pub use writing::write;
