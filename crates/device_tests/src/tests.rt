mod ends;
mod journal;
mod outside;
mod reader;
