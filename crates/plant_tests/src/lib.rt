//! Tests of what a plant is made of and of what is read: frames, telegrams, names, pieces of thrust, plant files and
//! the words of the command line. It has no other code.
#![tactic(auto)]

#[cfg(test)]
mod frames;
#[cfg(test)]
mod pieces;
#[cfg(test)]
mod plant_files;
#[cfg(test)]
mod plant_words;
#[cfg(test)]
mod plants;
#[cfg(test)]
mod statuses;
#[cfg(test)]
mod telegrams;
#[cfg(test)]
mod words;
