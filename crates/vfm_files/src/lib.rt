//! What a program over files needs: a source over a file, a sink over standard output, the words of the command line, and the
//! top call over these.
#![tactic(auto)]

mod file_source;
mod out_sink;
mod over_files;
mod words;

pub use file_source::FileSource;
pub use out_sink::OutSink;
pub use over_files::run_over_files;
pub use words::given_words;
