//! Statistics and a logger that speaks at most once an interval.
//!
//! Texts are exact: a fraction is rounded to the nearest decimal, and of two equally near ones to the even one.
#![tactic(auto)]

pub mod decimal;
pub mod logger;
pub mod statistic;
