mod live;
mod talk;
