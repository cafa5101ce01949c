//! Commands and tools over files: the codes that they end with, what is told, what is kept, and the
//! files that outputs go to. There is no code here but tests.
#![tactic(auto)]

// A comparison as a call, and files in a folder of a test's own.
#[cfg(test)]
mod folder;
#[cfg(test)]
mod same;

// Commands and tools, and the files that outputs go to.
#[cfg(test)]
mod commands;
#[cfg(test)]
mod outputs;
#[cfg(test)]
mod tools;
