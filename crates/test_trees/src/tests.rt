//! Worked rows. `columns` fills sets of columns and shows what is read of them.

mod columns;
mod faults;
mod foreign;
mod zeros;
