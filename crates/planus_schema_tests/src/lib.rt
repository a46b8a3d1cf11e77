//! Tests of schemas: what texts mean that `flatc` took, and printed code.
#![tactic(auto)]

#[cfg(test)]
mod answers;
#[cfg(test)]
mod digits;
#[cfg(test)]
mod facts;
#[cfg(test)]
mod located;
#[cfg(test)]
mod meaning;
#[cfg(test)]
mod meaning_rows;
#[cfg(test)]
mod orc;
#[cfg(test)]
mod printed;
#[cfg(test)]
mod shown;
#[cfg(test)]
mod verified;
