mod memory;
mod outside;
