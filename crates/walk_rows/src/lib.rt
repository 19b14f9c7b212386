//! Worked rows of the walk by address, of its laws and of its machine, a plain program that computes the lists of faces, and
//! traversals whose cells are walked by a call each.
#![tactic(auto)]

#[cfg(test)]
mod address_rows;
#[cfg(test)]
mod by_cells;
#[cfg(test)]
mod cell_rows;
#[cfg(test)]
mod machine_rows;
#[cfg(test)]
mod plain;
#[cfg(test)]
mod rows;
