// Tests of the book's calls.
mod closing;
