mod changes;
mod children;
mod ids;
mod large;
mod making;
mod pages;
