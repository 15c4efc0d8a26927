// Cases from outside the library: boundary values, every decline and its order, full tables, kinds of one field and of six
// fields, and a kind made of another kind, so that nothing leans on the two kinds that panels use. What is expected was
// worked out by hand.
#![tactic(auto)]

#[cfg(test)]
mod button;
#[cfg(test)]
mod drafts;
#[cfg(test)]
mod edits;
#[cfg(test)]
mod example;
#[cfg(test)]
mod grade;
#[cfg(test)]
mod makers;
#[cfg(test)]
mod other_kinds;
#[cfg(test)]
mod pair;
#[cfg(test)]
mod piles;
#[cfg(test)]
mod reading;
#[cfg(test)]
mod scans;
