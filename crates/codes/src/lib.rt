// Numbers that stand for something, in one place: rows of the table of forms, letters of kinds of lines, operators, kinds of elements
// and of values, keywords of items, and the places of tables in the working space. Contracts name the same numbers, so a wrong one
// here fails proofs above.
#![tactic(auto)]

pub mod area;
pub mod binary;
pub mod decl;
pub mod el;
pub mod element;
pub mod ex;
pub mod item;
pub mod kind;
pub mod need;
pub mod ty;
pub mod unary;
pub mod value;
