//! Tables of sites: each call of the crates from the scanner to the releases once with ample memory, a site
//! by its values, releases by number, maps whose copies share; and each call with one failed allocation.
//! `editors` has what an editor works with.
#![tactic(auto)]

#[cfg(test)]
mod calls;
#[cfg(test)]
mod comparing;
#[cfg(test)]
mod editors;
#[cfg(test)]
mod maps;
#[cfg(test)]
mod refusals;
#[cfg(test)]
mod releases;
#[cfg(test)]
mod rows;
#[cfg(test)]
mod sites;
