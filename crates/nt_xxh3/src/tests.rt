//! Sums that the reference implementation gives. The input of a length are the bytes
//! `i * 131 mod 251`, and both tables were printed by a C loop over `XXH3_64bits` of xxhash.h 0.8.1,
//! as Debian's libxxhash-dev has it.

ghost use Rattle.std.specs.Prelude.{◌≡◌, ◌+◌, ◌<◌, ◌^◌, ◌++◌, length};
ghost use Rattle.nt_xxh3.specs.Sum.{xxh3};

use super::*;
use std::test::*;

/// The sums of all lengths below 1100, twenty lengths a number: from 0 on, the number so far,
/// exclusive or the next sum, is multiplied by 0x9e3779b97f4a7c15.
const FOLDED: [u64; 55] = [
    0x89d5_df4b_2041_cbd6,
    0x3459_8721_8e3b_f967,
    0xbba4_6cd9_694e_eba7,
    0x1abc_4f02_6463_cda2,
    0x8016_cf9a_ca88_6b3d,
    0xe7bd_53b5_2311_7a55,
    0xe4fc_304d_6a45_1a46,
    0x1307_a7b3_3bf5_0ab3,
    0x275a_b617_091d_01b8,
    0x4338_ccdd_f8db_5e56,
    0xb3ea_1b7a_91b1_ea33,
    0x39d0_ca52_1fab_bc72,
    0x8d7b_2409_e01f_8c23,
    0x21c9_94ad_7096_5f00,
    0xc0aa_cb7f_471f_31b3,
    0x39b2_a97e_630b_9d42,
    0xb930_6a5c_3e85_bccc,
    0x2017_7697_fb26_814e,
    0xa20c_20ca_0de3_62a0,
    0x81be_199e_7f71_5419,
    0xe784_9d29_4be8_0f67,
    0xae3c_3460_5607_5352,
    0xca4d_4562_1bf9_a759,
    0x8b3b_665c_7179_522f,
    0xc65b_df1a_a521_0d1c,
    0x3f14_8ede_e959_db23,
    0x66a6_35e8_c634_73a7,
    0xef85_facd_a3ec_5da3,
    0x5403_efc3_9026_64a2,
    0x51bc_a35f_8061_8b97,
    0x29fa_3d32_c7a9_8f77,
    0x5907_047f_f756_e868,
    0xfe0b_9eeb_7eff_c3f3,
    0x874e_cc2a_91dc_7d58,
    0xc607_b03f_9283_41ec,
    0xbcb3_6ce5_f671_e796,
    0x8f64_ff99_2fbd_c3cb,
    0xc4a7_ff78_c884_422d,
    0x2c14_99a9_554d_ac6d,
    0x5112_2387_798a_a802,
    0x4cdd_1bc4_fbf4_9ba2,
    0xa8df_298b_4e5d_3181,
    0xc9a1_adb0_2db6_f82c,
    0x1a3c_c55c_8be4_abdf,
    0xe2ee_057c_ba9c_f81a,
    0x290d_5740_d2d7_59fe,
    0xdc74_0d76_40da_9c1a,
    0xe643_8ec9_ef55_5c4d,
    0xc596_81ea_e473_6ea7,
    0x2506_b144_74e5_ad5a,
    0x1f61_c670_b8f5_cefb,
    0x710d_d18a_6239_5f19,
    0xab25_d5e8_be92_c7c9,
    0x1774_f59c_51a7_fea3,
    0xff21_b2c6_954e_d483,
];

/// Lengths about the edges of the length classes and of blocks, and their sums.
const SINGLE: [(usize, u64); 48] = [
    (0, 0x2d06_8005_38d3_94c2),
    (1, 0xc44b_dff4_074e_ecdb),
    (2, 0x433c_e72a_5f67_ae52),
    (3, 0xc3ab_f7ae_2e25_0b5a),
    (4, 0x6e5c_9679_d43c_1e41),
    (5, 0x254f_5eea_b9f6_9fb1),
    (6, 0xef72_d9d7_78b6_8110),
    (7, 0x2000_9afb_4a4c_822b),
    (8, 0x2c21_27bb_b99b_325e),
    (9, 0x8436_430b_381f_7fd6),
    (10, 0xa52e_287b_5d97_2419),
    (11, 0x7600_f206_9f8d_8c62),
    (12, 0x4337_ccd8_4acd_81e7),
    (13, 0x9448_1843_98c0_be54),
    (14, 0xa63d_286f_0f9d_b948),
    (15, 0x3484_5f23_0b11_725a),
    (16, 0xbea4_2f62_eac4_54d0),
    (17, 0xc5bc_95c9_90fc_83b4),
    (32, 0x270f_c40a_309c_23ad),
    (33, 0x4de9_193e_f7fa_bcc1),
    (64, 0xd0bd_b3e3_c36a_32e8),
    (65, 0x60b7_06ea_92d6_e22e),
    (96, 0xd18d_44b6_31a7_3073),
    (97, 0xa57e_f040_7c7a_fe78),
    (128, 0x3d41_caa0_b80a_4385),
    (129, 0x2877_95ae_c899_cb57),
    (144, 0xb21d_ac5d_d293_4dd0),
    (145, 0xff70_7347_759a_2949),
    (239, 0xa6d6_68f3_39af_b17d),
    (240, 0x4da2_ab79_21d0_6c5e),
    (241, 0x179e_ad90_5bf7_5a05),
    (256, 0x4a0b_f471_528a_187b),
    (257, 0xb57e_b91d_3b6b_1144),
    (1024, 0x89af_ebe6_14a9_26d7),
    (1025, 0x6d62_73cf_fcf6_16f7),
    (1100, 0x2d51_4642_0eae_5685),
    (2047, 0x2c6c_c8ac_020c_ed42),
    (2048, 0x2ef1_df25_6302_e71b),
    (2049, 0x9618_cf89_5b0a_7f08),
    (4095, 0x0df1_049e_1e4a_3514),
    (4096, 0x1f0d_35f1_3437_4e5d),
    (4097, 0xc750_322f_f8d6_0f52),
    (65536, 0xaf1a_4bda_d1cf_291d),
    (65537, 0xe1c6_7d69_45aa_5f63),
    (65538, 0xf104_a610_a7f5_40c3),
    (1048575, 0x5cad_034f_2241_368c),
    (1048576, 0x2da7_8478_3632_590d),
    (1048577, 0x8c5e_270c_b8e4_cccf),
];

/// The places at which an input of up to 1100 bytes is cut.
const CUTS: [usize; 14] = [
    0, 1, 63, 64, 65, 191, 192, 193, 255, 256, 257, 320, 577, 1024,
];

/// The lengths of pieces that are given again and again.
const PIECES: [usize; 8] = [61, 64, 127, 192, 256, 257, 1024, 5000];

fn input(rt: &HostRuntime, len: u32) -> Result<Vec<u8>, Fail>
    requires { len < 2 ^ 24 }
{
    Ok((0..len).map(|i| (i * 131 % 251) as u8).collect(rt.alloc())?)
}

/// The sum of two pieces.
fn sum_of_two(first: &[u8], second: &[u8]) -> u64
    requires { length first.now + length second.now < 2 ^ 63 }
    ensures { result ≡ xxh3 (first.now ++ second.now) }
{
    let mut sum = Sum::new();
    sum.update(first);
    sum.update(second);
    sum.finish()
}

/// The sum in pieces of a length each, and what is left.
fn sum_in_pieces(bytes: &[u8], piece: usize) -> u64
    requires some { 0 < piece }
    requires total { length bytes.now < 2 ^ 63 }
{
    let mut sum = Sum::new();
    let mut rest = bytes;
    while rest.len() > piece {
        let (front, back) = rest.split_at(piece);
        sum.update(front);
        rest = back;
    }
    sum.update(rest);
    sum.finish()
}

#[test]
fn each_length_below_1100(rt: HostRuntime) -> Result<(), Fail> {
    let bytes = input(&rt, 1100)?;
    for (range, want) in FOLDED.iter().enumerate() {
        let mut folded = 0u64;
        for k in 0..20 {
            let len = 20 * range + k;
            assert!(rt; len <= bytes.len());
            folded = (folded ^ sum(&bytes[..len])).wrapping_mul(0x9e37_79b9_7f4a_7c15);
        }
        assert_eq!(rt; folded, *want, "in range {range}");
    }
    Ok(())
}

#[test]
fn edges_of_classes_and_blocks(rt: HostRuntime) -> Result<(), Fail> {
    let bytes = input(&rt, 1_048_577)?;
    for (len, want) in SINGLE {
        assert!(rt; len <= bytes.len());
        assert_eq!(rt; sum(&bytes[..len]), want, "of {len} bytes");
        for piece in PIECES {
            assert_eq!(rt;
                sum_in_pieces(&bytes[..len], piece),
                want,
                "of {len} bytes by {piece}"
            );
        }
    }
    Ok(())
}

#[test]
fn pieces_joined(rt: HostRuntime) -> Result<(), Fail> {
    let bytes = input(&rt, 1100)?;
    for len in 0..1101 {
        for cut in CUTS {
            if cut <= len {
                assert!(rt; len <= bytes.len());
                let (first, second) = bytes[..len].split_at(cut);
                assert_eq!(rt;
                    sum_of_two(first, second),
                    sum(&bytes[..len]),
                    "of {len} bytes cut at {cut}"
                );
            }
        }
    }
    Ok(())
}

#[test]
fn byte_by_byte(rt: HostRuntime) -> Result<(), Fail> {
    let bytes = input(&rt, 1100)?;
    let mut so_far = Sum::new();
    for at in 0..bytes.len() {
        assert_eq!(rt; so_far.finish(), sum(&bytes[..at]), "of {at} bytes");
        so_far.update(&bytes[at..at + 1]);
    }
    Ok(())
}
