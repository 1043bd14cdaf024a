//! Scripts in which interrupts come between any two steps of a death, and checksums of what is written of them.

/// A server copies of its client, whom a thread kills that an interrupt wakes. Its schedule is to come.
pub const KILLED_CLIENT: &str =
    "eka2 1\nidfc w device d0 0\nirq 0 idfc w\nprocess ps\nthread sv 20\nserver files r0\nreceive r0 m0\ncomplete m0 0\nreceive r0 m1\nread m1 0 0 100 0\npeek 63\npeek 64\nprocess pc\nthread c 10\nfill 0 100 65\nconnect files 1 r0\ncall r0 1 d:0:100:100 0 0 0\nprocess pz\nthread z 30\nopen thread c r0\nrequest d0 s0\nwaitany\nkill r0 4\nschedule\n";

/// What is written where the interrupt comes after 0, 1, 2 and so on of 80 slots: the checksums of what a simulator
/// writes that was made apart from the program.
pub const KILLED_CLIENT_SUMS: [u64; 61] = [
    0xb80a_e51e_f18b_a7a3,
    0x8b04_0d5b_dd32_0ecd,
    0x58d8_9042_de5d_e3bf,
    0x744a_f360_1c19_7da1,
    0xbbaa_208b_476d_10df,
    0x1a55_bf34_4b9e_61b1,
    0x6900_8e84_34ca_62bc,
    0xb564_db7f_3a6a_907c,
    0x60ab_54fe_d3ba_73d4,
    0x8b69_18b4_a53c_80a8,
    0xef64_f66e_2415_68db,
    0x1070_b5fd_2f6b_39b8,
    0xd97c_f77e_982e_8bb8,
    0x4252_92e8_8dac_5020,
    0x04c8_8221_6a23_a5c2,
    0xf0a4_d2ec_c71b_864c,
    0xefa2_f7fc_d528_8b40,
    0x2d36_1bb0_6a87_07de,
    0x06ca_44dd_24d1_620a,
    0xaa33_9b29_fdd7_5bae,
    0xc0d5_b407_e459_d796,
    0x0749_6092_b085_1b52,
    0xd71f_06eb_ec54_67c6,
    0x7af7_b77a_1441_1d5e,
    0xfe86_9e83_d902_45f0,
    0xdeae_f5dd_7abd_8d53,
    0xa981_090f_1ad2_1f3b,
    0xc8e6_1d43_e108_0c03,
    0xf9f4_c2d0_2c8c_89e4,
    0xb6b6_21a7_e881_519d,
    0xee8d_a075_a04f_5795,
    0x67ac_c776_8a31_f32d,
    0xb20e_926d_0751_1151,
    0x8362_5157_ca8e_8a52,
    0xe96d_f448_0a8b_7970,
    0xca87_695d_106f_38bc,
    0x66ac_7b22_0f7d_603a,
    0xd632_3903_b263_70cc,
    0x50f9_71b4_edbb_b412,
    0xac6b_2eee_9c6b_603e,
    0x01ab_936e_fe74_2c16,
    0xa51b_7407_ed80_966c,
    0x5223_9e27_4aae_f126,
    0x1f05_1d68_d74b_1232,
    0xcc02_f07c_cfbc_b568,
    0x6f73_46a7_ec6c_afc2,
    0x6fb1_be1e_3648_08ca,
    0xf43b_c690_a2f4_b778,
    0x5e6a_a4a9_32df_6c9a,
    0x89a9_a65a_8b25_316a,
    0x92de_6de6_4c8b_e58a,
    0xd42c_7bc2_6d9e_07aa,
    0x5fd2_0e86_8bee_2eec,
    0xf6e7_f07b_1121_7b9a,
    0x5413_2925_fb76_6d26,
    0x96b1_a714_9fcd_9df2,
    0x2962_b7f8_fca4_82dc,
    0x2fc3_481c_0c57_4034,
    0x844f_9f08_d2bc_adae,
    0x672d_37f0_4c49_aac0,
    0x418b_56f6_bc13_b2c8,
];

/// A server with a mutex and two clients, and a thread that an interrupt wakes, which kills the server and is told so.
pub const KILLED_SERVER: &str =
    "eka2 1\nidfc w device d0 0\nirq 0 idfc w\nprocess ps\nthread sv 20\ncreate mutex m r1\nlock r1\nserver files r0\nreceive r0 m0\ncomplete m0 0\nreceive r0 m0\ncomplete m0 0\nreceive r0 m0\nreceive r0 m1\ncomplete m1 0\ncomplete m0 0\nprocess pc\nthread c 10\nconnect files 2 r0\nsend r0 1 s0 0 0 0 0\nwaitfor s0\nclose r0\nthread b 9\nconnect files 1 r1\ncall r1 2 0 0 0 0\nprocess pz\nthread z 30\nopen thread sv r0\nlogon r0 s1\nrequest d0 s0\nwaitfor s0\nkill r0 4\nwaitfor s1\nexittype r0\nschedule\n";

/// The same of it, of 100 slots.
pub const KILLED_SERVER_SUMS: [u64; 93] = [
    0x5bc5_92ed_f113_5020,
    0xd7f0_76df_d853_fc56,
    0x4396_c1bd_e5a4_7700,
    0x7b04_d738_d119_c696,
    0x96c9_b418_e62f_cd40,
    0xe125_f6eb_875a_cc56,
    0x371e_bb83_587c_3680,
    0xb257_9a9f_d562_23b6,
    0xed92_0408_081f_f165,
    0xd608_676a_80a0_3676,
    0x1e0d_4580_0350_6cc6,
    0x5fee_b9e6_d34b_2be1,
    0x025e_788c_8c85_28f7,
    0x42f6_c28d_a77b_dbef,
    0xf69a_f513_14d8_6277,
    0x68ca_928d_e2a0_d59e,
    0x7f4f_14af_607f_5270,
    0x2d22_059d_9ab5_0039,
    0x7137_9393_3cb6_550f,
    0xf007_13d3_f6fd_d0c3,
    0x3909_d9b3_f663_6881,
    0x2452_17fa_42f8_76ab,
    0x9491_59d7_7f14_bd20,
    0x4d69_cb58_0586_dafa,
    0xe245_1d15_132a_a285,
    0x03fa_3f2a_10ec_a89d,
    0x2d67_50ca_2d9f_5077,
    0x2cc9_ffa0_1b6d_f1f0,
    0xfbec_bf7b_f3d5_b996,
    0xa91f_5575_6e36_9d26,
    0x1b9e_5b64_8f91_a21e,
    0x74bb_bdc9_88f7_b252,
    0x3883_b060_4c48_74b4,
    0x5ed5_3bad_a954_5dbc,
    0x2f04_25f2_6b38_56eb,
    0x167c_19f7_d675_30a3,
    0xa6c9_1a7e_d76a_4473,
    0x9222_2e8e_b6db_2260,
    0x31bf_0e09_40d0_5f66,
    0x6c93_2f63_d67a_cf28,
    0x4212_777a_2841_4030,
    0x8f8d_7b1d_ce24_f219,
    0x8ee3_0c28_3f97_b5f6,
    0x24b3_2c5d_97cf_15b8,
    0x86ae_9d4b_f915_26f5,
    0x92a9_ae1f_399a_3bff,
    0xcdc3_e054_6420_1c2d,
    0x01f8_8ee0_ea89_f399,
    0xcf86_0a34_dc41_36bb,
    0xac3e_4f6a_d1fd_cc45,
    0x5252_1f4d_3738_692b,
    0x5044_5567_4ffd_4725,
    0xf7e6_a5ce_a410_8e40,
    0xdb11_8d5a_2720_b045,
    0x72fd_bc22_b94a_be7e,
    0xea6a_2969_111e_84c7,
    0xc10a_719b_76dc_69dd,
    0x5270_1fe4_8b96_d3f3,
    0x7359_87a0_7791_7577,
    0xfdc5_182c_d976_61ef,
    0xaa23_3cc9_eb32_2b90,
    0x44df_7bd0_4989_d05a,
    0x6980_7eae_300b_14be,
    0x6168_e574_cba1_ea88,
    0xa8ff_83e0_66a4_5548,
    0xe786_edde_1e7a_806e,
    0x8bfe_bbdd_f1c0_ee20,
    0xe929_947e_a5e8_f2cb,
    0xf335_2f68_f82e_241f,
    0x88a2_e273_446b_6ff3,
    0xf002_d4b3_6931_204d,
    0x12e1_c800_192f_e45d,
    0xbd23_f7ce_9cd9_45cd,
    0xf40a_6b40_d49d_c8a9,
    0x3f8d_5184_b87b_37a1,
    0xfbb5_450a_0bd2_de75,
    0xefb0_0c82_e93c_1ec1,
    0xc79e_fde2_9145_3ba2,
    0x4fd4_0bd5_9453_6606,
    0xe06e_3072_677f_3f3a,
    0x10c6_d2ca_9d74_197c,
    0x5deb_84f5_2007_ae20,
    0x86bb_1a8c_e139_dcc1,
    0x2ddd_b5cf_0070_bb73,
    0x7326_8a77_6898_3e66,
    0x010d_7f9b_13cb_5043,
    0x5cb1_9f63_49a1_ad6a,
    0x94f3_87ba_629b_fcf2,
    0xc80b_379b_ccdd_33fa,
    0x46b4_264a_93eb_256a,
    0x6f73_88eb_61f3_2968,
    0x5d3f_65b6_1760_4c90,
    0x6e41_7f9d_ff12_ad16,
];

/// A thread is killed that has a mutex for which another waits, a server with a session and a message, handles and a
/// logon on it. Interrupts wake the one that kills it, complete a request that nobody made, signal a fast semaphore, and
/// queue deferred calls for a thread of their own and for the supervisor, which buries the dead.
pub const REAPED: &str =
    "eka2 1\ndfcq q 40\ndfc d q 3 fssignal k ; device d1 5 ; queue e\ndfc e supervisor 2 device d3 7\nidfc w device d0 0\nidfc n device d2 -2\nidfc f fssignal k\nirq 0 idfc w\nirq 1 idfc n\nirq 2 idfc f\nirq 3 dfc d\nirq 4 dfc e\nkthread k 8\nfswait\nfswait\nfswait\nfswait\nprocess ps\nthread sv 20\ncreate mutex m r1\nlock r1\nserver files r0\nreceive r0 m0\ncomplete m0 0\nreceive r0 m0\nrequest d1 s3\nwaitfor s3\nprocess pc\nthread c 10\nconnect files 2 r0\nsend r0 1 s0 0 0 0 0\nopen mutex m r1\nlock r1\nunlock r1\nwaitfor s0\nprocess pz\nthread z 30\nopen thread sv r0\nlogon r0 s1\nrequest d0 s0\nwaitfor s0\nkill r0 4\nwaitfor s1\nexittype r0\nschedule\n";

/// Each of its interrupts with as many slots as its calls take, and one more.
pub const KINDS: [(u32, u32); 5] = [(0, 2), (1, 2), (2, 2), (3, 4), (4, 3)];

/// What is written where that interrupt comes between any two steps of the death.
pub const REAPED_SUMS: [u64; 5] = [
    0xc114_c128_b7a1_d380,
    0xd717_b51f_5125_3bda,
    0xff77_ac53_a56f_92f1,
    0x76d0_33ea_01ec_e709,
    0x51e9_7529_cc47_d0c4,
];

/// Three threads of one process, which end as interrupts let them. Each leaves something to the last of them.
pub const ENDING: &str =
    "eka2 1\nidfc wa device d0 0\nidfc wb device d1 0\nidfc wc device d2 0\nirq 0 idfc wa\nirq 1 idfc wb\nirq 2 idfc wc\nprocess p\nthread a 10\ncreate mutex m r0\nlock r0\nrequest d0 s0\nwaitfor s0\nexit 1\nthread b 11\ncreate semaphore s 0 r1\nduplocal r1 r2\nrequest d1 s0\nwaitfor s0\nthread c 12\nserver files r2\nrequest d2 s0\nwaitfor s0\npanic r7 A 1\nexit 3\nschedule\n";

/// The orders in which they end.
pub const ORDERS: [[u32; 3]; 6] = [
    [0, 1, 2],
    [0, 2, 1],
    [1, 0, 2],
    [1, 2, 0],
    [2, 0, 1],
    [2, 1, 0],
];

/// What is written where they end in these orders.
pub const ENDING_SUMS: [u64; 6] = [
    0x06cd_b96e_7601_d913,
    0x814c_8e6a_ab1d_8633,
    0xfddf_7836_c7dd_dbd5,
    0x78be_1d01_a004_4077,
    0x4779_c857_6f57_f46f,
    0x8fad_9059_8123_2293,
];
