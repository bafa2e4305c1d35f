//! Label files, which name addresses: lines as VICE's monitor takes them, `al C:c000 .loop`, and the places that they
//! name.
//!
//! `read_labels` answers the labels of a file in its order, or the number of the first bad line (`Reads`,
//! `labels_of`). `place_of` is the nearest label at an address or at most 4,095 bytes before it, and how far it is.
//! `address_of` is the address of the first label of a name. That the files of `build --labels` and
//! `assemble --labels` are read as those labels is not proved.
#![tactic(auto)]

mod labels;
mod lines;
mod places;

pub use labels::{Label, LabelsError};
pub use lines::read_labels;
pub use places::{Place, address_of, place_of};
