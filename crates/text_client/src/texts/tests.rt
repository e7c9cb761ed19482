mod codec;
mod report;
mod script;
mod texts;
mod words;
