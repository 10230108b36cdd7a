//! The tables, a module for each library.

mod codings;
mod columns;
mod descriptions;
mod frames;
mod images;
mod rows;
mod schemas;
mod trees;
mod types;
mod values;
