mod listed_calls;
mod real_files;
mod streams;
