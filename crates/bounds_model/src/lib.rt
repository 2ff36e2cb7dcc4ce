//! The meaning of the whole product: points and fractions, the thirteen kinds of objects with their sizes, what best means, the answers,
//! what a checker asks of them, and the texts. The definitions stand in `specs/`, over whole numbers of any size. No code runs here.
#![tactic(auto)]
