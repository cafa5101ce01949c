//! Tables of vectors over the commands and the tools: hostile input, and every call that fails.
//! There is no code here but tests; each expected value was worked out by hand, or is reckoned here
//! from the rules of docs/FORMATS.md.
#![tactic(auto)]

// A comparison as a call.
#[cfg(test)]
mod same;

// Carrying out a command over sources and sinks that fail where a test wants it.
#[cfg(test)]
mod running;

// The first run for other PIDs and pages, and many pictures.
#[cfg(test)]
mod other_services;

// Every read and every write fails in turn, and every growth of memory may.
#[cfg(test)]
mod failing;
#[cfg(test)]
mod failing_reads;
#[cfg(test)]
mod failing_streams;
#[cfg(test)]
mod failing_tools;
#[cfg(test)]
mod failing_writes;
#[cfg(test)]
mod refused_growth;

// Inputs that end too early, have another byte, or are too long.
#[cfg(test)]
mod changed_bytes;
#[cfg(test)]
mod long_inputs;
#[cfg(test)]
mod script_prefixes;
#[cfg(test)]
mod stream_prefixes;

// Streams that no encoder writes.
#[cfg(test)]
mod adaptation;
#[cfg(test)]
mod hostile_calls;
#[cfg(test)]
mod hostile_sets;
#[cfg(test)]
mod hostile_times;
