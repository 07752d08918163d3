//! Averages, sums of durations, rates of success and running times.
mod average;
mod average_duration;
mod counted_duration;
mod moving_average;
mod running_time;
mod success_rate;

pub use crate::decimal::Seconds;
pub use average::Average;
pub use average_duration::AverageDuration;
pub use counted_duration::CountedDuration;
pub use moving_average::MovingAverage;
pub use running_time::RunningTime;
pub use success_rate::SuccessRate;
