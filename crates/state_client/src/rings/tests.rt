mod answers;
mod one_thread;
mod requests;
