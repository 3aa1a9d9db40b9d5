//! The rows of answers, by type.
mod byte_strings;
mod numbers;
mod options;
mod pairs;
mod sums;
mod values;
