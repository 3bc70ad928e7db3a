//! A space of spans of numbers whose heights are sought, searched by one worker and by many.
mod cells;
mod heights;
mod searching;
mod teams;
mod turns;
