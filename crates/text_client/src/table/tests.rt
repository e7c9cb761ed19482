mod crcs;
mod damaged;
mod headers;
mod parts;
mod reader;
