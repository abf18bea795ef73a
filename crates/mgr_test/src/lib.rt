//! Calls of libraries that no program shows: devices that are counted, exchanges that are cut off,
//! lines that are lent, runs at stores that are nearly full, writes in blocks, plans that no key
//! leads to, cursors that no window shows, frames and texts that are not flushed, saves over a port
//! that refuses, files over a disk that fails, paths of a folder, stores and logs that are
//! compacted, notes that are mended, logs that are read by their names, with what is counted in
//! them, reports that are read, and a status in full.
#![tactic(auto)]

#[cfg(test)]
mod compactions;
#[cfg(test)]
mod cuts;
#[cfg(test)]
mod devices;
#[cfg(test)]
mod folders;
#[cfg(test)]
mod joins;
#[cfg(test)]
mod lines;
#[cfg(test)]
mod mended;
#[cfg(test)]
mod mendings;
#[cfg(test)]
mod notes;
#[cfg(test)]
mod plans;
#[cfg(test)]
mod reports;
#[cfg(test)]
mod runs;
#[cfg(test)]
mod saves;
#[cfg(test)]
mod screens;
#[cfg(test)]
mod sending;
#[cfg(test)]
mod sessions;
#[cfg(test)]
mod shows;
#[cfg(test)]
mod statuses;
