// What the program does with files, from their names to the number that it ends with: rules are read, checked, written and printed, and a schedule is converted into
// a listing, tried, or salvaged. They stand together since each reaches nearly all of the code below, which is loaded anew for every crate that does.

#![tactic(auto)]

mod conversion;
mod errands;
mod listings;
mod rescueday;
mod rulebooks;

pub use conversion::{convert_files, try_files};
pub use errands::{check_file, print_file, print_models, write_file};
pub use rescueday::salvage_files;
pub use rulebooks::FILE;
