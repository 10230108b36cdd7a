//! Two contexts in each order, limits, failing calls, and threads.

mod pairs;
mod threads;
