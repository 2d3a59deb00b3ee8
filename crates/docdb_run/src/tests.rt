mod reading;
mod rows;
