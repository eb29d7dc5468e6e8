mod printing;
mod tokens;
mod trees;
