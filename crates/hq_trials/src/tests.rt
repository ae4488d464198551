mod copies;
mod deepest;
mod memory;
mod pages;
mod store;
mod system;
