//! Worked lines and texts.

mod entries;
mod texts;
