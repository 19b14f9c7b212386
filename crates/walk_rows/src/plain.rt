//! A plain program for the lists of faces. Each function computes a definition as it is written there, over vectors and
//! by search, and says so in its contract. The walk has nothing of it: the tests compare what it computes.
//!
//! Each answers an error where memory is short or a number is out of range.
mod cells;
mod grid;
mod lists;
mod setting;
mod tests;
mod touches;
