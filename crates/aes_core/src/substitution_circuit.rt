//! The S-box on eight blocks in planes of bits. The circuit and the names of its gates are those of Boyar
//! and Peralta ("A new combinational logic minimization technique with applications to cryptology",
//! 2010). The constant of the S-box is added with the round keys, which saves the circuit's four
//! complements.

ghost use Rattle.std.specs.Prelude.{◌≡◌, ℕ, List};
ghost use Rattle.aes_core.specs.MiddleRounds.{state_map, substitute_without_constant};
ghost use Rattle.aes_core.specs.Planes.{AllBlocks, planes};

use crate::transposition::Square;
use crate::vectors::{and, xor};

#[inline(always)]
pub(crate) fn substitute_planes(state: Square) -> Square
    ensures { (s : ℕ → List ℕ) → AllBlocks s → state ≡ planes s
        → result ≡ planes (λ b. state_map substitute_without_constant (s b)) }
{
    let [u7, u6, u5, u4, u3, u2, u1, u0] = state;
    let y14 = xor(u3, u5);
    let y13 = xor(u0, u6);
    let y12 = xor(y13, y14);
    let t1 = xor(u4, y12);
    let y15 = xor(t1, u5);
    let t2 = and(y12, y15);
    let y6 = xor(y15, u7);
    let y20 = xor(t1, u1);
    let y9 = xor(u0, u3);
    let y11 = xor(y20, y9);
    let t12 = and(y9, y11);
    let y7 = xor(u7, y11);
    let y8 = xor(u0, u5);
    let t0 = xor(u1, u2);
    let y10 = xor(y15, t0);
    let y17 = xor(y10, y11);
    let t13 = and(y14, y17);
    let t14 = xor(t13, t12);
    let y19 = xor(y10, y8);
    let t15 = and(y8, y10);
    let t16 = xor(t15, t12);
    let y16 = xor(t0, y11);
    let y21 = xor(y13, y16);
    let t7 = and(y13, y16);
    let y18 = xor(u0, y16);
    let y1 = xor(t0, u7);
    let y4 = xor(y1, u3);
    let t5 = and(y4, u7);
    let t6 = xor(t5, t2);
    let t18 = xor(t6, t16);
    let t22 = xor(t18, y19);
    let y2 = xor(y1, u0);
    let t10 = and(y2, y7);
    let t11 = xor(t10, t7);
    let t20 = xor(t11, t16);
    let t24 = xor(t20, y18);
    let y5 = xor(y1, u6);
    let t8 = and(y5, y1);
    let t9 = xor(t8, t7);
    let t19 = xor(t9, t14);
    let t23 = xor(t19, y21);
    let y3 = xor(y5, y8);
    let t3 = and(y3, y6);
    let t4 = xor(t3, t2);
    let t17 = xor(t4, y20);
    let t21 = xor(t17, t14);
    let t26 = and(t21, t23);
    let t27 = xor(t24, t26);
    let t31 = xor(t22, t26);
    let t25 = xor(t21, t22);
    let t28 = and(t25, t27);
    let t29 = xor(t28, t22);
    let z14 = and(t29, y2);
    let z5 = and(t29, y7);
    let t30 = xor(t23, t24);
    let t32 = and(t31, t30);
    let t33 = xor(t32, t24);
    let t35 = xor(t27, t33);
    let t36 = and(t24, t35);
    let t38 = xor(t27, t36);
    let t39 = and(t29, t38);
    let t40 = xor(t25, t39);
    let t43 = xor(t29, t40);
    let z3 = and(t43, y16);
    let tc12 = xor(z3, z5);
    let z12 = and(t43, y13);
    let z13 = and(t40, y5);
    let z4 = and(t40, y1);
    let tc6 = xor(z3, z4);
    let t34 = xor(t23, t33);
    let t37 = xor(t36, t34);
    let t41 = xor(t40, t37);
    let z8 = and(t41, y10);
    let z17 = and(t41, y8);
    let t44 = xor(t33, t37);
    let z0 = and(t44, y15);
    let z9 = and(t44, y12);
    let z10 = and(t37, y3);
    let z1 = and(t37, y6);
    let tc5 = xor(z1, z0);
    let tc11 = xor(tc6, tc5);
    let z11 = and(t33, y4);
    let t42 = xor(t29, t33);
    let t45 = xor(t42, t41);
    let z7 = and(t45, y17);
    let tc8 = xor(z7, tc6);
    let z16 = and(t45, y14);
    let z6 = and(t42, y11);
    let tc16 = xor(z6, tc8);
    let z15 = and(t42, y9);
    let tc20 = xor(z15, tc16);
    let tc1 = xor(z15, z16);
    let tc2 = xor(z10, tc1);
    let tc21 = xor(tc2, z11);
    let tc3 = xor(z9, tc2);
    let s0 = xor(tc3, tc16);
    let s3 = xor(tc3, tc11);
    let s1 = xor(s3, tc16);
    let tc13 = xor(z13, tc1);
    let z2 = and(t33, u7);
    let tc4 = xor(z0, z2);
    let tc7 = xor(z12, tc4);
    let tc9 = xor(z8, tc7);
    let tc10 = xor(tc8, tc9);
    let tc17 = xor(z14, tc10);
    let s5 = xor(tc21, tc17);
    let tc26 = xor(tc17, tc20);
    let s2 = xor(tc26, z17);
    let tc14 = xor(tc4, tc12);
    let tc18 = xor(tc13, tc14);
    let s6 = xor(tc10, tc18);
    let s7 = xor(z12, tc18);
    let s4 = xor(tc14, s3);
    [s7, s6, s5, s4, s3, s2, s1, s0]
}
