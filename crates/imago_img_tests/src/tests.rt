// SPDX-License-Identifier: MIT
//! Command lines over files in memory: what each prints, its status, and the file that it makes.

mod alone;
mod asked;
mod below;
mod chains;
mod checks;
mod commands;
mod compressed;
mod existing;
mod formats;
mod headers;
mod held;
mod layers;
mod lines;
mod new_images;
mod one_format;
mod opener;
mod qcow2;
mod refusals;
mod resize;
mod set_up;
mod unfinished;
mod vet;
mod whole;
